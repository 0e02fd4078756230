//! The document that a picture stands in.

ghost use Rattle.std.specs.Prelude.{◌≡◌, ◌++◌, OnOk};
ghost use Rattle.svg_text.specs.Document.{document_end, document_head, root_text};

use crate::class::Class;
use crate::piece::{put_place, put_rect};
use crate::point::Point;
use ring_math::OutOfMemory;
use text_writer::Text;

/// The style sheet, with a line for each class, and the heads of lines, which turn with them. Blue is what was sent, green are
/// files, and vermilion is what stands out: colours that the colour-blind can tell apart, and each class has a form of its own
/// besides.
pub const STYLE: &[u8] = b"<style type='text/css'>
text{font-family:monospace;font-size:10px;fill:#000}
.label-end,.faint-end{text-anchor:end}
.label-middle{text-anchor:middle}
.faint,.faint-end{font-size:8px;fill:#555}
.paper,.joiner{fill:#fff}
.ready,.joiner{stroke:#000;stroke-width:1.5}
.ring,.link,.gate,.owner,.owner-head{fill:none}
.ring{stroke:#999;stroke-width:1}
.link{stroke:#0072b2;stroke-width:1.5}
.gate{stroke:#d55e00;stroke-width:3}
.owner,.owner-head{stroke:#009e73;stroke-width:1}
.owner-head{marker-end:url(#owner-mark)}
.link-head,.sent-mark{fill:#0072b2}
.gate-head,.wrong{fill:#d55e00}
.key,.owner-mark{fill:#009e73}
.life{stroke:#bbb;stroke-width:1}
.guide{stroke:#bbb;stroke-width:1;stroke-dasharray:1 3}
.marked{fill:#f0e442}
.sent,.sent-part,.again,.again-part,.lost{stroke:#0072b2;stroke-width:1.2}
.sent,.again{marker-end:url(#sent-mark)}
.again,.again-part{stroke-dasharray:4 3}
.cross{stroke:#d55e00;stroke-width:2}
</style>
<defs>
<marker id='sent-mark' viewBox='0 0 8 8' refX='8' refY='4' markerWidth='6' markerHeight='6' orient='auto'>
<path class='sent-mark' d='M0,1 L8,4 L0,7 z'/>
</marker>
<marker id='owner-mark' viewBox='0 0 8 8' refX='8' refY='4' markerWidth='7' markerHeight='7' orient='auto'>
<path class='owner-mark' d='M0,1 L8,4 L0,7 z'/>
</marker>
</defs>
";

/// A document of this size begins: the style sheet, the heads of lines, and the paper.
pub fn open_document(text: &mut Text, size: Point) -> Result<(), OutOfMemory>
    ensures { OnOk result (text.new ≡ text.old ++ document_head size) }
{
    put_root(text, size)?;
    text.put(STYLE)?;
    put_rect(text, Class::Paper, Point { x: 0, y: 0 }, size)
}

/// The document ends.
pub fn close_document(text: &mut Text) -> Result<(), OutOfMemory>
    ensures { OnOk result (text.new ≡ text.old ++ document_end) }
{
    text.put(b"</svg>\n")
}

fn put_root(text: &mut Text, size: Point) -> Result<(), OutOfMemory>
    ensures { OnOk result (text.new ≡ text.old ++ root_text size) }
{
    text.put(
        b"<?xml version='1.0' encoding='UTF-8'?>\n<svg xmlns='http://www.w3.org/2000/svg' version='1.1'",
    )?;
    put_place(text, b" width='", b"' height='", size)?;
    put_place(text, b"' viewBox='0 0 ", b" ", size)?;
    text.put(b"'>\n")
}
