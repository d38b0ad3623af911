// The exports over `probes::tags`.
ghost use Rattle.std.specs.Prelude.{◌≡◌, ◌<◌};
ghost use Rattle.rules.specs.Tag.{holds};
ghost use Rattle.condition.specs.Measures.{Ranges, now_at};
ghost use Rattle.condition.specs.Tags.{tag_at, tag_means};
ghost use Rattle.probes.specs.Tags.{plain_tag};

#[unsafe(no_mangle)]
pub extern "C" fn probe_tag(atoms: &[u8; 128], operator: &[u8; 512], node: usize) -> usize
    requires { node < 128 }
    ensures { result ≡ plain_tag (tag_at atoms.now operator.now node) }
{
    probes::tags::probe_tag(atoms, operator, node)
}

#[unsafe(no_mangle)]
pub extern "C" fn probe_tag_holds(
    coefficients: &[i64; 128],
    values: &[i64; 8],
    atoms: &[u8; 128],
    measure: &[u8; 512],
    operator: &[u8; 512],
    key: &[i64; 512],
    node: usize,
) -> bool
    requires { (node < 128) × (Ranges coefficients.now values.now key.now) }
    ensures { result ≡ holds (now_at coefficients.now values.now)
        (tag_means measure.now operator.now key.now (tag_at atoms.now operator.now node)) }
{
    probes::tags::probe_tag_holds(coefficients, values, atoms, measure, operator, key, node)
}
