// A header's cell.
ghost use Rattle.std.specs.Prelude.{◌≡◌, ◌^◌, ◌<◌, length};
ghost use Rattle.blocks.specs.Cells.{cell_of};

use bits::Bits;
use kinds::Kind;

// The number made of a header's values at the bits, the first bit most significant.
pub fn cell_of<K: Kind>(bits: &Bits, header: &K::Header) -> usize
    ensures answer { result ≡ cell_of K.meaning bits.now header.now }
    ensures bound { result < 2 ^ length bits.now }
{
    let places = bits.places();
    let chosen = &places[..bits.len()];
    // A loop and no `fold`: tried, and that the sum in its closure fits was not proved.
    let mut cell: usize = 0;
    for bit in chosen {
        cell = 2 * cell + usize::from(K::bit(header, usize::from(*bit)));
    }
    cell
}
