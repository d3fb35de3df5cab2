//! Texts with spaces in place of tabs.
ghost use Rattle.std.specs.Prelude.{◌≡◌, ◌++◌, replicate, string_bytes, OnOk, IfOk, IfErr};
ghost use Rattle.indicatif_bar.specs.Tabs.{expanded, has_tab};

use crate::scan::has_byte;
use indicatif_text::columns::Refusal;
use std::alloc::AllocError;

/// Appends `count` spaces, as those of a tab. A count for which there is no memory is refused at once.
pub(crate) fn push_spaces(count: usize, out: &mut String) -> Result<(), AllocError>
    ensures { OnOk result (string_bytes out.new ≡ string_bytes out.old ++ replicate count 0x20) }
{
    out.reserve(count)?;
    'spaces: for _ in 0..count {
        out.push(' ')?;
    }
    Ok(())
}

/// Appends the text with `tab` spaces in place of each tab.
pub(crate) fn push_expanded(text: &str, tab: usize, out: &mut String) -> Result<(), AllocError>
    ensures { OnOk result (string_bytes out.new ≡ string_bytes out.old ++ expanded tab text.now) }
{
    let mut started = false;
    for part in text.split('\t') {
        if started {
            push_spaces(tab, out)?;
        }
        out.push_str(part)?;
        started = true;
    }
    Ok(())
}

/// Whether a text has a tab.
pub(crate) fn has_tab(text: &str) -> bool
    ensures { result ≡ has_tab text.now }
{
    has_byte(b'\t', text)
}
