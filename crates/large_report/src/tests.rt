//! The line of a large file, by how the commands on its pieces were answered.

use crate::put_large_line;
use ring_math::{Bytes, Id};
use std::test::Fail;
use text_writer::Text;
use wire_msg::{Answer, Reply};

/// An empty file has no fragments, and an index of six zeros.
#[test]
fn an_empty_file_is_whole(rt: HostRuntime) -> Result<(), Fail> {
    let node = Id(0);
    let missing = Answer::Reply(Reply::NotFound { node });
    let bytes = Bytes::copy_of(rt.alloc(), &[0; 6])?;
    let found = Answer::Reply(Reply::Found { node, bytes });
    let mut text = Text::new(rt.alloc());
    put_large_line(rt.alloc(), &mut text, 0, &[Some(&missing), Some(&found)])?;
    put_large_line(rt.alloc(), &mut text, 0, &[Some(&found), Some(&missing)])?;
    put_large_line(rt.alloc(), &mut text, 1, &[Some(&found), None])?;
    let expected = b"large size 0 fragments 0 stored 0 found 1 whole yes
large size 0 fragments 0 stored 0 found 1 whole no
large size 1 fragments 1 stored 0 found 1 whole no
";
    assert_eq!(rt; text.into_frame().as_slice(), expected.as_slice());
    Ok(())
}
