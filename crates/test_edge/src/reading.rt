//! Tests of reading the texts that the command line names.
use crate::ending::expects;
use console::{ReadFault, Sources, read_text};
use std::alloc::Global;
use std::io;

// One text, under every name.
#[derive(Drop)]
struct OneText<'a> {
    text: &'a [u8],
}

impl<'a> Sources for OneText<'a> {
    ghost use Rattle.std.specs.Prelude.{Some};

    type Source = &'a [u8];

    ghost whole = { λ sources name. Some sources.text.now };

    fn reader_of(&self, _name: &str) -> io::Result<&'a [u8]> {
        Ok(self.text)
    }
}

fn is_text(read: Result<Vec<u8>, ReadFault>, wanted: &[u8]) -> bool {
    match read {
        Ok(bytes) => bytes.as_slice() == wanted,
        Err(_) => false,
    }
}

// Whether these bytes of a text of five bytes are read under a limit.
fn is_read(alloc: Global, limit: usize, wanted: &[u8]) -> bool {
    let sources = OneText { text: b"12345" };
    is_text(read_text(alloc, &sources, "one", limit), wanted)
}

#[test]
fn text_is_read_to_one_byte_beyond_the_limit(rt: HostRuntime) {
    expects(&rt, is_read(rt.alloc(), 3, b"1234"), "four bytes");
    expects(&rt, is_read(rt.alloc(), 5, b"12345"), "all five");
}
