//! Examples of terminals: those in memory, whose contents are in rows of data (`terminals.txt`), so here is the cursor; and those on writers.
use crate::checks::Granted;
use indicatif::{Cells, InMemoryTerm, Resize, Term, TermLike, write_whole};
use std::io::BufWriter;

#[test]
fn cells_after_bytes(rt: HostRuntime) {
    let cells = Cells::new(rt.alloc(), 65535, 65535).granted(&rt);
    same!(&rt; cells.cursor(), (0, 0));
    let term = InMemoryTerm::new(rt.alloc(), 24, 80).granted(&rt);
    same!(&rt; term.cursor(), (0, 0));
    let mut cells = Cells::new(rt.alloc(), 2, 4).granted(&rt);
    cells.feed(b"ab\r\ncd\x1B[1A!").granted(&rt);
    same!(&rt; cells.cursor(), (0, 3));
    // a full row, and one that scrolled away
    let mut cells = Cells::new(rt.alloc(), 2, 2).granted(&rt);
    cells.feed(b"ab").granted(&rt);
    same!(&rt; cells.cursor(), (0, 2));
    let mut cells = Cells::new(rt.alloc(), 1, 3).granted(&rt);
    cells.feed(b"a\r\nb ").granted(&rt);
    same!(&rt; cells.cursor(), (0, 2));
    // written spaces
    let mut cells = Cells::new(rt.alloc(), 3, 3).granted(&rt);
    cells.feed(b"a \r\n ").granted(&rt);
    same!(&rt; cells.cursor(), (1, 1));
    let text = format!(in rt.alloc(); "{cells:?}").granted(&rt);
    same!(&rt; text.as_str(), "Cells { cursor: (1, 1), .. }");
}

/// Then comes a character of two columns, in two halves.
#[test]
fn cells_of_fewer_columns_and_of_more_again(rt: HostRuntime) {
    let mut cells = Cells::new(rt.alloc(), 4, 10).granted(&rt);
    cells.feed(b"progress b\r\nars").granted(&rt);
    cells.resize(4, 5).granted(&rt);
    same!(&rt; cells.cursor(), (2, 3));
    cells.resize(4, 20).granted(&rt);
    same!(&rt; cells.cursor(), (2, 3));
    cells.feed(b"\xE5\x9B").granted(&rt);
    cells.feed(b"\xBD").granted(&rt);
    same!(&rt; cells.cursor(), (2, 5));
}

/// It goes up by two rows from the second one. After a reset come written spaces.
#[test]
fn texts_and_moves_of_a_terminal(rt: HostRuntime) {
    let mut term = InMemoryTerm::new(rt.alloc(), 3, 10).granted(&rt);
    term.write_line("one").granted(&rt);
    term.write_str("two ").granted(&rt);
    same!(&rt; term.cursor(), (1, 4));
    term.move_cursor_up(2).granted(&rt);
    term.write_line("a\tb").granted(&rt);
    same!(&rt; term.cursor(), (1, 0));
    term.write_str("abc").granted(&rt);
    term.reset();
    same!(&rt; term.cursor(), (0, 0));
    term.write_str("a  \r\n\r\n ").granted(&rt);
    same!(&rt; term.cursor(), (2, 1));
    // a character behind a full row
    let mut term = InMemoryTerm::new(rt.alloc(), 2, 2).granted(&rt);
    term.write_str("ab").granted(&rt);
    same!(&rt; term.cursor(), (0, 2));
    term.write_str("c").granted(&rt);
    same!(&rt; term.cursor(), (1, 1));
    // a row that is emptied, and then one that scrolls away
    let mut term = InMemoryTerm::new(rt.alloc(), 2, 3).granted(&rt);
    term.write_line("ab").granted(&rt);
    term.move_cursor_up(1).granted(&rt);
    term.clear_line().granted(&rt);
    same!(&rt; term.cursor(), (0, 0));
    term.write_str("a\r\nb\r\nc").granted(&rt);
    same!(&rt; term.cursor(), (1, 1));
    // another size
    let mut term = InMemoryTerm::new(rt.alloc(), 4, 10).granted(&rt);
    term.write_str("progress").granted(&rt);
    term.resize(4, 5).granted(&rt);
    same!(&rt; term.cursor(), (0, 5));
}

#[test]
fn whole_texts_on_writers(rt: HostRuntime) {
    let alloc = rt.alloc();
    let mut term = Term::new(BufWriter::new(alloc, rt.stderr()).granted(&rt), 24, 80);
    term.write_line("ab").granted(&rt);
    let mut writer: Vec<u8> = Vec::new(alloc);
    write_whole(&mut writer, b"ab").granted(&rt);
    same!(&rt; writer.len(), 2);
}
