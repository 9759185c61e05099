// The font.
ghost use Rattle.std.specs.Prelude.{◌≡◌, ◌<◌, ◌^◌};
ghost use Rattle.board_world.specs.Font.{glyph_of};
ghost use Rattle.board_drivers.specs.Places.{place_of};

/// The frames of the glyphs: digits, capitals, space, `-`, `!`, `?` and `.`.
const GLYPHS: [u32; 41] = [
    0x0e9d72e, 0x0e210c4, 0x1f0ba0f, 0x0f83a0f, 0x0847d29, 0x0f83c3f, 0x0e8bc2e, 0x042221f,
    0x0e8ba2e, 0x0e87a2e, 0x118fe2e, 0x0f8be2f, 0x1e0843e, 0x0f8c62f, 0x1f0bc3f, 0x010bc3f,
    0x1e8e43e, 0x118fe31, 0x0e2108e, 0x064a11c, 0x1149d31, 0x1f08421, 0x118d771, 0x11cd671,
    0x0e8c62e, 0x010be2f, 0x164d62e, 0x114be2f, 0x0f8383e, 0x042109f, 0x0e8c631, 0x0454631,
    0x11dd631, 0x1151151, 0x0421151, 0x1f1111f, 0x0000000, 0x0003800, 0x0401084, 0x040222e,
    0x0400000,
];

/// Where the glyph of a byte stands.
fn place(byte: u8) -> usize
    ensures place { result ≡ place_of byte }
    ensures within { result < 41 }
{
    let place = match byte {
        b'0'..=b'9' => byte - b'0',
        b'A'..=b'Z' => byte - b'A' + 10,
        b'a'..=b'z' => byte - b'a' + 10,
        b' ' => 36,
        b'-' => 37,
        b'!' => 38,
        b'.' => 40,
        _ => 39,
    };
    usize::from(place)
}

/// The frame that shows a byte, of 25 bits. A small letter is shown as its capital, and a byte that the font hasn't as `?`.
pub fn glyph(byte: u8) -> u32
    ensures glyph { result ≡ glyph_of byte }
    ensures bits { result < 2 ^ 25 }
{
    GLYPHS[place(byte)]
}
