// A frame's header, and reading it.
ghost use Rattle.std.specs.Prelude.{◌≡◌};
ghost use Rattle.bridge.specs.Frames.{header_of};

use super::fault::Fault;
use super::octets::Octets;

// The first fourteen bytes of a frame: destination, source, and length or type.
#[derive(Clone, Copy, Debug, PartialEq, Eq)]
pub struct Header {
    pub octets: Octets,
}

impl Header {
    // The header of a frame, of which only the first fourteen bytes are read. No `TryFrom`: it would be no plainer, and say that a whole value is converted.
    pub fn read(frame: &[u8]) -> Result<Header, Fault>
        ensures { result ≡ header_of frame.now }
    {
        let [a, b, c, d, e, f, g, h, i, j, k, l, m, n, ..] = frame else {
            return Err(Fault::Short);
        };
        let first = u64::from_be_bytes([*a, *b, *c, *d, *e, *f, *g, *h]);
        let middle = u32::from_be_bytes([*i, *j, *k, *l]);
        let last = u16::from_be_bytes([*m, *n]);
        Ok(Header {
            octets: Octets {
                first,
                middle,
                last,
            },
        })
    }
}
