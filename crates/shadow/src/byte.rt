// The shadow byte: how many bytes of its granule it makes addressable, and its sign.
ghost use Rattle.std.specs.Prelude.{◌≡◌};
ghost use Rattle.rules.specs.Shadow.{leading, signed, negative};

// How many leading bytes of its granule a shadow byte makes addressable.
const LEADING: [u8; 256] = [
    8, // 00: all
    1, 2, 3, 4, 5, 6, 7, 0, // 08 to 7f: never written
    0, 0, 0, 0, 0, 0, 0, 0, 0, 0, 0, 0, 0, 0, 0, 0, 0, 0, 0, 0, 0, 0, 0, 0, 0, 0, 0, 0, 0, 0, 0, 0,
    0, 0, 0, 0, 0, 0, 0, 0, 0, 0, 0, 0, 0, 0, 0, 0, 0, 0, 0, 0, 0, 0, 0, 0, 0, 0, 0, 0, 0, 0, 0, 0,
    0, 0, 0, 0, 0, 0, 0, 0, 0, 0, 0, 0, 0, 0, 0, 0, 0, 0, 0, 0, 0, 0, 0, 0, 0, 0, 0, 0, 0, 0, 0, 0,
    0, 0, 0, 0, 0, 0, 0, 0, 0, 0, 0, 0, 0, 0, 0, 0, 0, 0, 0, 0, 0, 0, 0, 0, // 80 to ff: negative
    0, 0, 0, 0, 0, 0, 0, 0, 0, 0, 0, 0, 0, 0, 0, 0, 0, 0, 0, 0, 0, 0, 0, 0, 0, 0, 0, 0, 0, 0, 0, 0,
    0, 0, 0, 0, 0, 0, 0, 0, 0, 0, 0, 0, 0, 0, 0, 0, 0, 0, 0, 0, 0, 0, 0, 0, 0, 0, 0, 0, 0, 0, 0, 0,
    0, 0, 0, 0, 0, 0, 0, 0, 0, 0, 0, 0, 0, 0, 0, 0, 0, 0, 0, 0, 0, 0, 0, 0, 0, 0, 0, 0, 0, 0, 0, 0,
    0, 0, 0, 0, 0, 0, 0, 0, 0, 0, 0, 0, 0, 0, 0, 0, 0, 0, 0, 0, 0, 0, 0, 0, 0, 0, // fa: redzone, or room not held
    0, 0, 0, // fd: released
    0, 0,
];

#[tactic(auto, using(crate::proofs::Table::entry_leading))]
pub fn leading(value: u8) -> u8
    ensures { result ≡ leading value }
{
    LEADING[value as usize]
}

// "The byte is read as a signed byte."
#[tactic(auto, unfolding(rules::specs::Shadow::signed))]
pub fn signed_byte(value: u8) -> i8
    ensures { result ≡ signed value }
{
    value.cast_signed()
}

// "Negative means poisoned."
#[tactic(auto, unfolding(rules::specs::Shadow::signed, rules::specs::Shadow::negative))]
pub fn poisoned(value: u8) -> bool
    ensures { result ≡ negative value }
{
    signed_byte(value).is_negative()
}
