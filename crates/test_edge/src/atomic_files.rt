//! Tests of atomic replacement, with a place in memory.
use crate::ending::{expects, fail};
use console::{AtomicTarget, finish};
use std::alloc::Global;
use std::io;
use std::io::Write;
use std::process::Abort;

#[derive(Drop)]
struct Shelf {
    current: Vec<u8>,
    is_broken: bool,
}

impl AtomicTarget for Shelf {
    ghost use Rattle.std.specs.Prelude.{Some};

    type Text = Vec<u8>;

    ghost current = { λ shelf. Some shelf.current.items };

    fn begin(&mut self) -> io::Result<Vec<u8>> {
        Ok(Vec::new(*self.current.allocator()))
    }

    fn commit(&mut self, text: Vec<u8>) -> io::Result<()> {
        if self.is_broken {
            return Err(io::Error::from(io::ErrorKind::StorageFull));
        }
        self.current = text;
        Ok(())
    }

    fn discard(&mut self, _text: Vec<u8>) {}
}

fn shelf_of(rt: &impl Abort, alloc: Global, is_broken: bool) -> Shelf {
    match b"old".to_vec(alloc) {
        Ok(current) => Shelf { current, is_broken },
        Err(_) => fail(rt, "memory for a shelf"),
    }
}

fn text_for(rt: &impl Abort, shelf: &mut Shelf) -> Vec<u8> {
    match shelf.begin() {
        Ok(mut text) => {
            expects(rt, text.write_all(b"new text").is_ok(), "memory for a text");
            text
        }
        Err(_) => fail(rt, "a text"),
    }
}

// Whether a shelf has this text after a new text, complete or not, was finished with or without success.
fn check_commit(
    rt: &impl Abort,
    alloc: Global,
    is_broken: bool,
    is_whole: bool,
    is_done: bool,
    wanted: &[u8],
) -> bool {
    let mut shelf = shelf_of(rt, alloc, is_broken);
    let text = text_for(rt, &mut shelf);
    let is_as_wanted = finish(&mut shelf, text, is_whole).is_ok() == is_done;
    is_as_wanted && shelf.current.as_slice() == wanted
}

#[test]
fn only_a_whole_text_takes_the_place(rt: HostRuntime) {
    let alloc = rt.alloc();
    let whole = check_commit(&rt, alloc, false, true, true, b"new text");
    expects(&rt, whole, "the new text");
    let cut = check_commit(&rt, alloc, false, false, true, b"old");
    expects(&rt, cut, "the old text under a cut one");
    let refused = check_commit(&rt, alloc, true, true, false, b"old");
    expects(&rt, refused, "the old text under a refused one");
}
