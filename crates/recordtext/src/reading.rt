// Numbers and keywords of a line.
ghost use Rattle.recordtext.specs.Lines.{blank, first_number, numbers, behind, Numbers};
ghost use Rattle.std.specs.Prelude.{◌≡◌};
ghost use Rattle.std.specs.List.{list_all};
ghost use Rattle.std.specs.Option.{option_map};

use crate::Fault;
use std::alloc::Global;
use text::leading;

fn is_blank(byte: u8) -> bool
    ensures { result ≡ blank byte }
{
    matches!(byte, b' ' | b'\t' | b'\r')
}

pub(crate) fn all_blank(text: &[u8]) -> bool
    ensures { result ≡ list_all blank text.now }
{
    text.iter().all(|b| is_blank(*b))
}

// A number at a text's front with a blank or the end behind it, and what follows the number.
fn first_number(text: &[u8]) -> Option<(u32, &[u8])>
    ensures { option_map (λ p. (p.0, p.1.now)) result ≡ first_number text.now }
{
    match leading(16, text)? {
        (_, [byte, ..]) if !is_blank(*byte) => None,
        first => Some(first),
    }
}

// The numbers of a text. Read byte by byte: a text is refused at the first byte that no number has.
pub(crate) fn read_numbers(heap: Global, text: &[u8]) -> Result<Vec<u32>, Fault>
    ensures { Numbers (numbers text.now) result }
{
    let mut all = Vec::new(heap);
    let mut rest = text;
    while let Some((byte, behind)) = rest.split_first() {
        if is_blank(*byte) {
            rest = behind;
        } else {
            let (number, behind) = first_number(rest).ok_or(Fault::Bad)?;
            all.push(number)?;
            rest = behind;
        }
    }
    Ok(all)
}

// What follows a keyword and a blank at the text's start.
pub(crate) fn behind<'a>(keyword: &[u8], text: &'a [u8]) -> Option<&'a [u8]>
    ensures { option_map (λ rest. rest.now) result ≡ behind keyword.now text.now }
{
    let (blank, rest) = text.strip_prefix(keyword)?.split_first()?;
    is_blank(*blank).then_some(rest)
}
