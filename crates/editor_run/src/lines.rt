//! The lines of a script.
ghost use Rattle.std.specs.Prelude.{◌≡◌, ◌<◌, ◌+◌, ◌∷◌, length};
ghost use Rattle.machine_definitions.specs.Lines.{lines_of, is_blank, is_blank_byte};

/// The first line of a text that isn't empty, without its line feed, and what follows it.
pub fn split_line(text: &[u8]) -> (&[u8], &[u8])
    requires { 0 < length text.now }
    ensures lines { lines_of text.now ≡ result.0.now ∷ lines_of result.1.now }
    ensures shorter { length result.1.now < length text.now }
{
    for (index, byte) in text.iter().enumerate() {
        if *byte == b'\n' {
            return (&text[..index], &text[index + 1..]);
        }
    }
    (text, &text[text.len()..])
}

/// Whether a line has nothing but blanks, tabs and carriage returns.
pub fn is_blank(line: &[u8]) -> bool
    ensures { result ≡ is_blank line.now }
{
    line.iter().all(|byte| is_blank_byte(*byte))
}

/// Whether a byte is a blank, a tab or a carriage return.
fn is_blank_byte(byte: u8) -> bool
    ensures { result ≡ is_blank_byte byte }
{
    matches!(byte, b' ' | b'\t' | b'\r')
}
