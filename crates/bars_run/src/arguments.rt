//! The request of the arguments of `bars run`.
ghost use Rattle.std.specs.Prelude.{◌≡◌, ◌^◌, map, option_map, string_bytes};
ghost use Rattle.std.specs.Char.{is_ascii_digit};
ghost use Rattle.std.specs.List.{list_all};
ghost use Rattle.bars_run.specs.Arguments.{is_number, number_below, size_spelled, asking, asked_behind, asked_by};

use indicatif_term::target::MultiProgressAlignment;

/// A terminal's size.
#[derive(Clone, Copy, Drop)]
pub struct Size {
    pub rows: u16,
    pub columns: u16,
}

impl Size {
    /// The size with these rows and columns, each one or more decimal digits, and at most 65,535; `None` for other words.
    pub fn spelt(rows: &str, columns: &str) -> Option<Size>
        ensures { result ≡ size_spelled rows.now columns.now }
    {
        let rows = size_of(rows)?;
        let columns = size_of(columns)?;
        Some(Size { rows, columns })
    }
}

/// A terminal's size, and where bars stand in the rows that a draw erases.
#[derive(Clone, Copy, Drop)]
pub struct Asked {
    pub size: Size,
    pub alignment: MultiProgressAlignment,
}

impl Asked {
    /// The request of `run ROWS COLS` or `run ROWS COLS bottom`; `None` for other words.
    pub fn by(args: &[String]) -> Option<Asked>
        ensures { result ≡ asked_by (map (λ word. string_bytes word) args.now) }
    {
        match args {
            [run, rows, columns] => sized(run, rows, columns, MultiProgressAlignment::Top),
            [run, rows, columns, bottom] => {
                if bottom.as_str() != "bottom" {
                    return None;
                }
                sized(run, rows, columns, MultiProgressAlignment::Bottom)
            }
            _ => None,
        }
    }
}

/// The request, with this alignment.
fn sized(
    run: &String,
    rows: &String,
    columns: &String,
    alignment: MultiProgressAlignment,
) -> Option<Asked>
    ensures { result ≡ asked_behind (string_bytes run.now) (option_map (asking alignment) (size_spelled (string_bytes rows.now) (string_bytes columns.now))) }
{
    if run.as_str() != "run" {
        return None;
    }
    let size = Size::spelt(rows.as_str(), columns.as_str())?;
    Some(Asked { size, alignment })
}

/// The number of at most 65,535 that one or more decimal digits spell.
fn size_of(text: &str) -> Option<u16>
    ensures { result ≡ number_below (2 ^ 16) text.now }
{
    if !is_digits(text) {
        return None;
    }
    text.parse::<u16>().ok()
}

/// Whether a text is one or more decimal digits.
pub fn is_digits(text: &str) -> bool
    ensures { result ≡ is_number text.now }
{
    !text.is_empty() && are_digits(text)
}

/// Whether each byte is a decimal digit.
fn are_digits(text: &str) -> bool
    ensures { result ≡ list_all is_ascii_digit text.now }
{
    text.as_bytes().iter().all(|b| b.is_ascii_digit())
}
