//! Appending to memory that was taken before.
ghost use Rattle.std.specs.Prelude.{◌≡◌, ◌+◌, ◌≤◌, ◌++◌, length, string_bytes, string_len, string_capacity};

/// Appends a text, in memory that was taken before.
pub(crate) fn append(out: &mut String, text: &str)
    requires { string_len out.old + length text.now ≤ string_capacity out.old }
    ensures bytes { string_bytes out.new ≡ string_bytes out.old ++ text.now }
    ensures len { string_len out.new ≡ string_len out.old + length text.now }
    ensures capacity { string_capacity out.old ≤ string_capacity out.new }
{
    out.push_str(text).unwrap();
}
