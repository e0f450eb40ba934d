//! Which ASCII characters are in the sets whose runs scalars take off. A look at a table takes fewer instructions than
//! comparisons.

ghost use Rattle.std.specs.Prelude.{◌≡◌, false, true};
ghost use Rattle.saphyr_input.specs.Fronts.{ascii_in};
ghost use Rattle.saphyr_scalar.specs.Steps.Sets as sets;

// For each byte, a bit for each of the four sets below.
const SETS_OF_BYTES: [u8; 256] = [
    0, 15, 15, 15, 15, 15, 15, 15, 15, 0, 0, 15, 15, 0, 15, 15, 15, 15, 15, 15, 15, 15, 15, 15, 15,
    15, 15, 15, 15, 15, 15, 15, 0, 15, 13, 15, 15, 15, 15, 14, 15, 15, 15, 15, 7, 15, 15, 15, 15,
    15, 15, 15, 15, 15, 15, 15, 15, 15, 3, 15, 15, 15, 15, 15, 15, 15, 15, 15, 15, 15, 15, 15, 15,
    15, 15, 15, 15, 15, 15, 15, 15, 15, 15, 15, 15, 15, 15, 15, 15, 15, 15, 7, 13, 7, 15, 15, 15,
    15, 15, 15, 15, 15, 15, 15, 15, 15, 15, 15, 15, 15, 15, 15, 15, 15, 15, 15, 15, 15, 15, 15, 15,
    15, 15, 7, 15, 7, 15, 15, 0, 0, 0, 0, 0, 0, 0, 0, 0, 0, 0, 0, 0, 0, 0, 0, 0, 0, 0, 0, 0, 0, 0,
    0, 0, 0, 0, 0, 0, 0, 0, 0, 0, 0, 0, 0, 0, 0, 0, 0, 0, 0, 0, 0, 0, 0, 0, 0, 0, 0, 0, 0, 0, 0, 0,
    0, 0, 0, 0, 0, 0, 0, 0, 0, 0, 0, 0, 0, 0, 0, 0, 0, 0, 0, 0, 0, 0, 0, 0, 0, 0, 0, 0, 0, 0, 0, 0,
    0, 0, 0, 0, 0, 0, 0, 0, 0, 0, 0, 0, 0, 0, 0, 0, 0, 0, 0, 0, 0, 0, 0, 0, 0, 0, 0, 0, 0, 0, 0, 0,
    0, 0, 0, 0, 0, 0, 0, 0, 0,
];

// Whether the byte is an ASCII character that stands for itself between single quotes and is no blank.
#[inline(always)]
pub(super) fn is_in_single(byte: u8) -> bool
    ensures { result ≡ ascii_in sets.in_single byte }
{
    SETS_OF_BYTES[byte as usize] & 1 != 0
}

// Whether the byte is an ASCII character that stands for itself between double quotes and is no blank.
#[inline(always)]
pub(super) fn is_in_double(byte: u8) -> bool
    ensures { result ≡ ascii_in sets.in_double byte }
{
    SETS_OF_BYTES[byte as usize] & 2 != 0
}

// Whether a word of a plain scalar outside flow always goes on with the byte, an ASCII character other than the colon.
#[inline(always)]
pub(super) fn is_in_plain_outside(byte: u8) -> bool
    ensures { result ≡ ascii_in (sets.in_plain false) byte }
{
    SETS_OF_BYTES[byte as usize] & 4 != 0
}

// Whether a word of a plain scalar inside flow always goes on with the byte, an ASCII character other than the colon.
#[inline(always)]
pub(super) fn is_in_plain_in_flow(byte: u8) -> bool
    ensures { result ≡ ascii_in (sets.in_plain true) byte }
{
    SETS_OF_BYTES[byte as usize] & 8 != 0
}
