// Tags: the slot of the atom that is the tag, and whether the tag holds.
ghost use Rattle.std.specs.Prelude.{◌≡◌, ◌<◌};
ghost use Rattle.rules.specs.Tag.{holds};
ghost use Rattle.condition.specs.Measures.{Ranges, now_at};
ghost use Rattle.condition.specs.Tags.{tag_at, tag_means};
ghost use Rattle.probes.specs.Tags.{plain_tag};

use crate::lent::{conditions_of, shared_of};

// 512, which is no slot, where there is no tag: the C interface.
pub fn probe_tag(atoms: &[u8; 128], operator: &[u8; 512], node: usize) -> usize
    requires { node < 128 }
    ensures { result ≡ plain_tag (tag_at atoms.now operator.now node) }
{
    let conditions = conditions_of(&[0; 32], atoms, &[0; 512], operator, &[0; 512]);
    conditions.tag_of(node).unwrap_or(512)
}

pub fn probe_tag_holds(
    coefficients: &[i64; 128],
    values: &[i64; 8],
    atoms: &[u8; 128],
    measure: &[u8; 512],
    operator: &[u8; 512],
    key: &[i64; 512],
    node: usize,
) -> bool
    requires { (node < 128) × (Ranges coefficients.now values.now key.now) }
    ensures { result ≡ holds (now_at coefficients.now values.now)
        (tag_means measure.now operator.now key.now (tag_at atoms.now operator.now node)) }
{
    let shared = shared_of(coefficients, values);
    let conditions = conditions_of(&[0; 32], atoms, measure, operator, key);
    conditions.tag_holds(&shared, node)
}
