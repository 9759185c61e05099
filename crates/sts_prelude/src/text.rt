// The text of the library.

/// The functions of the library, which stand before those of each program. A name that begins with `$` is the library's own.
pub const LIBRARY: &[u8] = b"function $showLeds(f: number): void { $show(f); basic.pause(400) }
function $showNumber(n: number): void {
    let i = 0
    let g = $numberGlyph(n, 0)
    while (g >= 0) { $show(g); basic.pause(400); i += 1; g = $numberGlyph(n, i) }
}
function $showString(s: string): void {
    let i = 0
    let g = $textGlyph(s, 0)
    while (g >= 0) { $show(g); basic.pause(400); i += 1; g = $textGlyph(s, i) }
}
function $writeLine(s: string): void { serial.writeString(s); serial.writeString(\"\\r\\n\") }
function $abs(n: number): number { return n < 0 ? 0 - n : n }
function $min(a: number, b: number): number { return a < b ? a : b }
function $max(a: number, b: number): number { return a > b ? a : b }
";
