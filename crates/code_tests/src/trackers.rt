//! Your own keys of a template: names of keys; and tests of the crate `indicatif` 0.18.6, each under its own name and with its own values.
ghost use Rattle.std.specs.Prelude.{false, true, [], ◌++◌, if◌then◌else◌, codes, decimal, unwrap_or};

use crate::checks::{Granted, Runtime, is_line};
use crate::documented::records::{Always, saying};
use indicatif::style::ProgressTracker;
use indicatif::{BarState, FnTracker, Moment, ProgressState, ProgressStyle, Refusal};
use std::alloc::Global;

/// A style with keys that give always the same text.
type Look = ProgressStyle<FnTracker<Always>>;

/// A style with this template, with colours or without, and keys with these names and texts.
fn styled(rt: &impl Runtime, of: (&str, bool), keys: &[(&str, &str)]) -> Look {
    let alloc = rt.alloc();
    let style = ProgressStyle::with_template(alloc, of.0).expect(rt, "granted");
    let mut style = style.with_colors(of.1).expect(rt, "granted");
    for (name, text) in keys {
        style = style
            .with_key(*name, saying(rt, *text))
            .expect(rt, "granted");
    }
    style
}

/// Ends the test if the one line of a bar of 10 in this style is another, on 80 columns.
fn shows_line(rt: &impl Runtime, look: Look, wanted: &str) {
    let bar = BarState::styled(rt.alloc(), look, Some(10), 0).expect(rt, "granted");
    is_line(rt, &bar.lines(0, 80).granted(rt), wanted);
}

/// A tracker comes before a key with its name, and before an earlier tracker with its name.
#[test]
fn names_of_trackers(rt: HostRuntime) {
    let keys = [("pos", "p"), ("wide_msg", "w"), ("t", "1"), ("t", "2")];
    let look = styled(&rt, ("{pos}{wide_msg}{t}", false), keys.as_slice());
    let clone = look.try_clone().expect(&rt, "granted");
    shows_line(&rt, look, "pw2");
    shows_line(&rt, clone, "pw2");
}

// ---- tests of the crate

#[test]
fn test_expand_template(rt: HostRuntime) {
    let table = [
        ("{{ {foo} {bar} }}", "{ FOO BAR }"),
        (
            r#"{ "foo": "{foo}", "bar": {bar} }"#,
            r#"{ "foo": "FOO", "bar": BAR }"#,
        ),
    ];
    for (template, wanted) in table {
        let keys = [("foo", "FOO"), ("bar", "BAR")];
        shows_line(&rt, styled(&rt, (template, false), keys.as_slice()), wanted);
    }
}

/// Ends the test if the key `foo` gives another line for a template, with colours or without.
fn expands_flags(rt: &impl Runtime, template: (&str, bool), wanted: &str) {
    shows_line(rt, styled(rt, template, &[("foo", "XXX")]), wanted);
}

#[test]
fn test_expand_template_flags(rt: HostRuntime) {
    let table: &[(&str, &str)] = &[
        ("{foo:5}", "XXX  "),
        ("{foo:.red.on_blue}", "\u{1b}[31m\u{1b}[44mXXX\u{1b}[0m"),
        ("{foo:^5.red.on_blue}", "\u{1b}[31m\u{1b}[44m XXX \u{1b}[0m"),
        (
            "{foo:^5.red.on_blue/green.on_cyan}",
            "\u{1b}[31m\u{1b}[44m XXX \u{1b}[0m",
        ),
    ];
    for (template, wanted) in table {
        expands_flags(&rt, (*template, true), *wanted);
    }
}

/// The crate has colours for each of two streams; here a style has colours or not.
#[test]
fn test_stderr_colors(rt: HostRuntime) {
    expands_flags(&rt, ("{foo:.red.on_blue}", false), "XXX");
}

/// The length and the position at the last tick since the last reset, if there was one.
#[derive(Clone, Copy, Drop)]
struct TestTracker {
    alloc: Global,
    ticked: bool,
    len: u64,
    pos: u64,
}

impl ProgressTracker for TestTracker {
    ghost means = { record {
      text = λ t p now. if t.ticked then decimal t.len ++ codes " " ++ decimal t.pos else [];
      ticked = λ t p now. record t { ticked = true; len = unwrap_or p.len 0; pos = p.position };
      was_reset = λ t p now. record t { ticked = false };
    } };

    fn tick(&mut self, state: &ProgressState, _now: Moment) {
        self.ticked = true;
        self.len = state.len().unwrap_or(0);
        self.pos = state.pos();
    }

    fn reset(&mut self, _state: &ProgressState, _now: Moment) {
        self.ticked = false;
    }

    fn write(&self, _state: &ProgressState, _now: Moment, out: &mut String) -> Result<(), Refusal> {
        if self.ticked {
            let (len, pos) = (self.len, self.pos);
            let text = format!(in self.alloc; "{len} {pos}")?;
            out.push_str(text.as_str())?;
        }
        Ok(())
    }

    fn try_clone(&self) -> Result<TestTracker, Refusal> {
        Ok(*self)
    }
}

/// A bar of 1 that shows such a tracker.
fn tested(rt: &impl Runtime) -> BarState<TestTracker> {
    let alloc = rt.alloc();
    let tracker = TestTracker {
        alloc,
        ticked: false,
        len: 0,
        pos: 0,
    };
    let style = ProgressStyle::with_template(alloc, "{{ {foo} }}").granted(rt);
    let style = style.with_key("foo", tracker).expect(rt, "granted");
    let style = style.progress_chars("#>-").granted(rt);
    BarState::styled(alloc, style, Some(1), 0).expect(rt, "granted")
}

/// Ends the test if the bar's one line is another one, on 16 columns.
fn shows(rt: &impl Runtime, bar: &BarState<TestTracker>, wanted: &str) {
    is_line(rt, &bar.lines(0, 16).granted(rt), wanted);
}

#[test]
fn test_stateful_tracker(rt: HostRuntime) {
    let mut bar = tested(&rt);
    shows(&rt, &bar, "{  }");
    bar.inc(1, 0);
    shows(&rt, &bar, "{ 1 1 }");
    bar.reset(0);
    shows(&rt, &bar, "{  }");
    bar.finish_and_clear(0);
}
