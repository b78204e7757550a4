// The header of a listing is read by lines, since a title and a quoted line may hold bytes that begin no token.
ghost use Rattle.std.specs.Prelude.{◌≡◌, ◌==◌, IsTrue, codes, nat_eq, ◌<◌, ◌≤◌, ◌^◌, ◌+◌, ◌∷◌, length, slice_index, IfOk, IfErr};
ghost use Rattle.std.specs.List.{prefix_len, list_all, list_any, starts_with};
ghost use Rattle.x86_litmus.specs.Header.{is_blank as is_blank_spec, indent as indent_spec, opens_body as opens_body_spec};
ghost use Rattle.x86_litmus.specs.Header.{has_no_meaning as has_no_meaning_spec, is_name_and_blanks as is_name_and_blanks_spec, behind_spaces, is_title as is_title_spec};
ghost use Rattle.x86_litmus.specs.Lines.{is_among, lines_from, IsBodyAt, IsHeaderFault};

use pc_common::Place;
use uspec_lexer::byte_or_nul;

/// What a line may begin with.
#[derive(Clone, Copy)]
enum Leading {
    Blanks,
    Spaces,
    Nonblanks,
    LineBytes,
}

fn is_blank(byte: u8) -> bool
    ensures { result ≡ is_blank_spec byte }
{
    byte == b' ' || byte == b'\t' || byte == b'\r'
}

impl Leading {
    fn has(self, byte: u8) -> bool
        ensures { result ≡ is_among self byte }
    {
        match self {
            Leading::Blanks => is_blank(byte),
            Leading::Spaces => byte == b' ',
            Leading::Nonblanks => !is_blank(byte),
            Leading::LineBytes => byte != b'\n',
        }
    }

    /// How many of them there are.
    fn count(self, bytes: &[u8]) -> usize
        ensures count { result ≡ prefix_len (is_among self) bytes.now }
        ensures within { result ≤ length bytes.now }
    {
        let mut end = 0;
        while end < bytes.len() && self.has(bytes[end]) {
            end += 1;
        }
        end
    }
}

fn are_blank(bytes: &[u8]) -> bool
    ensures { result ≡ list_all is_blank_spec bytes.now }
{
    bytes.iter().all(|byte| is_blank(*byte))
}

fn opens_body(line: &[u8]) -> bool
    ensures { result ≡ opens_body_spec line.now }
{
    byte_or_nul(line, Leading::Blanks.count(line)) == b'{'
}

fn has_equals(line: &[u8]) -> bool
    ensures { result ≡ list_any (λ c. c == 0x3D) line.now }
{
    line.contains(&b'=')
}

fn has_no_meaning(line: &[u8]) -> bool
    ensures { result ≡ has_no_meaning_spec line.now }
{
    are_blank(line) || byte_or_nul(line, 0) == b'"' || has_equals(line)
}

fn is_name_and_blanks(bytes: &[u8]) -> bool
    ensures { result ≡ is_name_and_blanks_spec bytes.now }
{
    let width = Leading::Nonblanks.count(bytes);
    0 < width && are_blank(&bytes[width..])
}

fn is_spaced_name(bytes: &[u8]) -> bool
    ensures { result ≡ is_name_and_blanks_spec (behind_spaces bytes.now) }
{
    is_name_and_blanks(&bytes[Leading::Spaces.count(bytes)..])
}

fn begins_title(line: &[u8]) -> bool
    ensures value { result ≡ starts_with nat_eq line.now (codes "X86 ") }
    ensures bound { IsTrue result → 4 ≤ length line.now }
{
    line.starts_with(b"X86 ")
}

fn is_title(line: &[u8]) -> bool
    ensures { result ≡ is_title_spec line.now }
{
    begins_title(line) && is_spaced_name(&line[3..])
}

/// The line that begins at `at`, without its LF.
fn line_at(bytes: &[u8], at: usize) -> &[u8]
    requires { at ≤ length bytes.now }
    ensures line { lines_from bytes.now at ≡ result.now ∷ lines_from bytes.now (at + length result.now + 1) }
    ensures within { at + length result.now ≤ length bytes.now }
{
    let rest = &bytes[at..];
    &rest[..Leading::LineBytes.count(rest)]
}

fn place(at: usize) -> Place
    requires { at < 2 ^ 32 }
    ensures { result.offset ≡ at }
{
    Place { offset: at as u32 }
}

/// Where the body of a listing begins, which is the line that opens it, or where its header goes wrong: at
/// the start of the text for the title, at the first nonblank byte of a line, or at the text's end.
///
/// Takes no memory, and time linear in the bytes.
pub fn body_of(bytes: &[u8]) -> Result<usize, Place>
    requires { length bytes.now < 2 ^ 32 }
    ensures ok { IfOk result (IsBodyAt bytes.now) }
    ensures err { IfErr result (IsHeaderFault bytes.now) }
{
    let title = line_at(bytes, 0);
    if !is_title(title) {
        return Err(place(0));
    }
    let mut at = title.len() + 1;
    while at <= bytes.len() {
        let line = line_at(bytes, at);
        if opens_body(line) {
            return Ok(at);
        }
        if !has_no_meaning(line) {
            return Err(place(at + Leading::Blanks.count(line)));
        }
        at += line.len() + 1;
    }
    Err(place(bytes.len()))
}
