// The readers' answers as plain numbers, since an exported signature may not hold an enum.
ghost use Rattle.std.specs.Prelude.{◌≡◌};
ghost use Rattle.probes.specs.Answers.{plain_answer, plain_signed};

// A number and the place after it, with refusal 0; or a refusal, with the rest 0.
#[repr(C)]
#[derive(Drop)]
pub struct Answer {
    pub refusal: u8,
    pub value: u64,
    pub next: usize,
}

// The same of a signed number: the C interface, since an exported signature may not hold a generic struct either.
#[repr(C)]
#[derive(Drop)]
pub struct SignedAnswer {
    pub refusal: u8,
    pub value: i64,
    pub next: usize,
}

impl From<Result<(u64, usize), u8>> for Answer {
    ghost from_gives = { λ read answer. answer ≡ plain_answer read };

    fn from(read: Result<(u64, usize), u8>) -> Answer {
        match read {
            Ok((n, next)) => Answer {
                refusal: 0,
                value: n,
                next,
            },
            Err(refusal) => Answer {
                refusal,
                value: 0,
                next: 0,
            },
        }
    }
}

impl From<Result<(i64, usize), u8>> for SignedAnswer {
    ghost from_gives = { λ read answer. answer ≡ plain_signed read };

    fn from(read: Result<(i64, usize), u8>) -> SignedAnswer {
        match read {
            Ok((z, next)) => SignedAnswer {
                refusal: 0,
                value: z,
                next,
            },
            Err(refusal) => SignedAnswer {
                refusal,
                value: 0,
                next: 0,
            },
        }
    }
}
