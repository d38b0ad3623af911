// An operator between a measure's value and a key: 1 =, 2 ≠, 3 <, 4 ≤, 5 >, 6 ≥, and no other holds. It stays a number and is no enum: the
// slots hold any u8 here, and the rules' atoms have the number.
ghost use Rattle.std.specs.Prelude.{◌≡◌};
ghost use Rattle.rules.specs.Condition.{compares};

pub fn compare(operator: u8, value: i64, key: i64) -> bool
    ensures { result ≡ compares operator value key }
{
    match operator {
        1 => value == key,
        2 => value != key,
        3 => value < key,
        4 => value <= key,
        5 => value > key,
        6 => value >= key,
        _ => false,
    }
}
