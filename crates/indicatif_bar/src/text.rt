//! Texts of commands: owned or borrowed ones.
ghost use Rattle.std.specs.Prelude.{◌≡◌, ℕ, List, string_bytes, IfOk, IfErr, IsTrue};
ghost use Rattle.indicatif_bar.specs.Tabs.{is_some_text};

use indicatif_text::columns::Refusal;
use std::alloc::Global;

/// The text of a command: an owned one, a `String`, or a borrowed one, a `&str`. A command with a borrowed text is made without a copy.
///
/// ```
/// let ask = bar.tell(BarCommand::SetMessage("copying"), now)?; // as `bar.set_message("copying", now)`
/// ```
pub trait Text: Drop {
    /// Its bytes, in UTF-8.
    ghost bytes: { Self → List ℕ };

    /// The text of the command, owned or borrowed.
    fn as_text(&self) -> &str
        ensures { result.now ≡ bytes self.now };
}

impl Text for String {
    ghost bytes = { string_bytes };

    fn as_text(&self) -> &str {
        self.as_str()
    }
}

impl<'a> Text for &'a str {
    ghost bytes = { λ text. text.now };

    fn as_text(&self) -> &str {
        self
    }
}

/// The text as an owned one. An empty one takes no memory.
///
/// Refused: `Memory`, only if the text isn't empty.
pub fn own_text<S: Text>(alloc: Global, text: &S) -> Result<String, Refusal>
    ensures same { IfOk result (λ other. string_bytes other ≡ S.bytes text.now) }
    ensures memory { IfErr result (λ e. (e ≡ Refusal.Memory) × IsTrue (is_some_text (S.bytes text.now))) }
{
    let text = text.as_text();
    if text.is_empty() {
        return Ok(String::new(alloc));
    }
    Ok(String::from_str(alloc, text)?)
}
