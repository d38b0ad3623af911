// Rank words: two unsigned words of an alternative. Of two alternatives whose tags hold, the one whose words are lower, the high word
// before the low one, is the earlier in document 01's order ("Which job a search calls"): `word-order` of proofs/Law.antt.
#![tactic(auto)]

ghost use Rattle.std.specs.Prelude.{◌≡◌, ◌^◌, ◌<◌, ◌≤◌, neg_ℤ};
ghost use Rattle.std.proofs.Math.Option.{none, some};
ghost use Rattle.rules.specs.Laws.Bounds.{Within};
ghost use Rattle.ranks.specs.Words.{key_room, biased, packed, high_word, low_word};

// What each part of a high word is multiplied by.
const CLASS: u64 = 1 << 46;

const MEASURE: u64 = 1 << 42;

const DIRECTION: u64 = 1 << 41;

// What makes every key a number above 0.
const BIAS: i64 = 1 << 39;

// A key of > or ≥: the smaller key is the lower number.
fn upward(key: i64) -> u64
    requires { Within key_room key }
    ensures { (result ≡ biased key) × (result < 2 ^ 40) }
{
    (BIAS + key) as u64
}

// A key of < or ≤: the larger key is the lower number.
fn downward(key: i64) -> u64
    requires { Within key_room key }
    ensures { (result ≡ biased (neg_ℤ key)) × (result < 2 ^ 40) }
{
    (BIAS - key) as u64
}

// Five numbers in one word, so that one comparison settles the order of two alternatives: a struct compared field by field is five.
fn pack(class: u64, measure: u64, direction: u64, key: u64, strict: u64) -> u64
    requires { (class ≤ 2) × (measure < 16) × (direction < 2) × (key < 2 ^ 40) × (strict < 2) }
    ensures { result ≡ packed class measure direction key strict }
{
    class * CLASS + measure * MEASURE + direction * DIRECTION + key * 2 + strict
}

// The high word of an alternative with this tag, for any operator that a slot may hold; operator 1 is =, 5 and 6 are > and ≥; 3 and 5, <
// and >, are strict.
#[tactic(auto, unfolding(crate::specs::Words::high_word))]
pub fn high_word(measure: u8, operator: u8, key: i64) -> u64
    requires { (measure < 16) × Within key_room key }
    ensures { result ≡ high_word (some (record { measure = measure; operator = operator; key = key })) }
{
    let measure = u64::from(measure);
    let strict = u64::from(operator % 2);
    match operator {
        1 => pack(0, measure, 0, upward(key), 0),
        5.. => pack(1, measure, 0, upward(key), strict),
        _ => pack(1, measure, 1, downward(key), strict),
    }
}

// The high word of an alternative without a tag.
#[tactic(auto, unfolding(crate::specs::Words::high_word))]
pub fn no_tag_word() -> u64
    ensures { result ≡ high_word none }
{
    pack(2, 0, 0, 0, 0)
}

// The low word: the older ticket, then the earlier alternative.
pub fn low_word(ticket: u32, alternative: usize) -> u64
    requires { alternative < 4 }
    ensures { result ≡ low_word ticket alternative }
{
    u64::from(ticket) * 4 + alternative as u64
}
