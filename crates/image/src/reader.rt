// The blocks of an image, one after the other.
ghost use Rattle.std.specs.Prelude.{◌≡◌, Some};
ghost use Rattle.image.specs.Rules.{first_refusal, refusal_in, told_by, told_of};
ghost use Rattle.image.specs.Reading.{Opened, Stepped};
ghost use Rattle.image.specs.Blocks.{reader_of, Yielded, blocks_left};
ghost use Rattle.image.specs.Laws.{Judged};

use crate::block::{Block, parse};
use crate::bytes::BLOCK;
use crate::{Ends, Fault, Refusal};

// The most bytes that an image may have.
pub const IMAGE_MAX: usize = 65536;

// An image of a right size, and how far it is read.
#[derive(Clone, Debug, PartialEq, Eq, Hash, Drop)]
pub struct Reader<'a> {
    image: &'a [u8],
    ends: Ends,
    place: usize,
}

impl<'a> Reader<'a> {
    // A reader at the first block; an image of a wrong size is refused.
    pub fn new(image: &'a [u8], ends: Ends) -> Result<Reader<'a>, Refusal>
        ensures { Opened image.now ends result }
    {
        let len = image.len();
        if len == 0 || len > IMAGE_MAX || len % BLOCK != 0 {
            return Err(Refusal {
                fault: Fault::Size,
                block: 0,
            });
        }
        Ok(Reader {
            image,
            ends,
            place: 0,
        })
    }

    // The next block, or nothing past the last. A refusal leaves the reader where it was, so that it comes again.
    pub fn next(&mut self) -> Result<Option<Block<'a>>, Refusal>
        ensures { Stepped self.old result self.new }
    {
        let place = self.place;
        let (blocks, _) = self.image.as_chunks::<BLOCK>();
        let Some(bytes) = blocks.get(place) else {
            return Ok(None);
        };
        let last = place + 1 == blocks.len();
        let block = parse(bytes, place, last, self.ends).map_err(|fault| Refusal {
            fault,
            block: place,
        })?;
        self.place = place + 1;
        Ok(Some(block))
    }
}

impl<'a> IntoIterator for Reader<'a> {
    type Item = Result<Block<'a>, Refusal>;

    type IntoIter = Blocks<'a>;

    ghost into_iter_gives = { λ reader blocks. reader_of blocks ≡ Some reader };

    fn into_iter(self) -> Blocks<'a> {
        Blocks { reader: Some(self) }
    }
}

// The blocks from a reader's place on. A refusal ends them, since an iterator must come to an end, and a reader gives the
// refusal again each time.
#[derive(Clone, Debug, PartialEq, Eq, Hash, Drop)]
pub struct Blocks<'a> {
    reader: Option<Reader<'a>>,
}

impl<'a> Iterator for Blocks<'a> {
    type Item = Result<Block<'a>, Refusal>;

    ghost next_gives = { Yielded };

    ghost remaining = { blocks_left };

    fn next(&mut self) -> Option<Result<Block<'a>, Refusal>> {
        let mut reader = self.reader.take()?;
        let step = reader.next();
        if let Ok(Some(_)) = step {
            self.reader = Some(reader);
        }
        step.transpose()
    }
}

// The whole image: the first refusal, if there is one.
pub fn check(image: &[u8], ends: Ends) -> Result<(), Refusal>
    ensures told { told_by result ≡ told_of image.now ends }
    ensures answer { refusal_in result ≡ first_refusal image.now ends }
    ensures law { Judged image.now ends result }
{
    for block in Reader::new(image, ends)? {
        block?;
    }
    Ok(())
}
