// Parts of a slice of octets, for any length.
ghost use Rattle.std.specs.Prelude.{◌≡◌, ◌≤◌, ◌++◌, length, take, slice_index};
ghost use Rattle.machine.specs.Answers.{written};

// The first octets, or all if there are fewer.
pub fn first(octets: &[u8], count: usize) -> &[u8]
    ensures first { result.now ≡ take count octets.now }
    ensures few { length result.now ≤ count }
    ensures whole { length octets.now ≤ count → result.now ≡ octets.now }
{
    octets.get(..count).unwrap_or(octets)
}

// The octet at a place, 0 past the end.
pub fn octet_at(octets: &[u8], place: usize) -> u8
    ensures { result ≡ slice_index octets.now place }
{
    octets.get(place).copied().unwrap_or(0)
}

// Writes octets to the front of a buffer, as many as it has room for, and leaves the rest of it.
pub fn write_front(buffer: &mut [u8], octets: &[u8])
    ensures front { buffer.new ≡ written (take (length buffer.old) octets.now) buffer.old }
    ensures whole { length octets.now ≤ length buffer.old → buffer.new ≡ written octets.now buffer.old }
{
    let front = first(octets, buffer.len());
    buffer[0..front.len()].copy_from_slice(front);
}

// For the fixed memory of a frame: adds octets after the first `size` octets of a room, as many as it
// has room for, and answers how many stand there then.
pub fn append_at(room: &mut [u8], size: usize, more: &[u8]) -> usize
    ensures octets { take result room.new ≡ take (length room.old) (take size room.old ++ more.now) }
    ensures bound { result ≤ length room.old }
    ensures length { length room.new ≡ length room.old }
{
    let at = size.min(room.len());
    let added = first(more, room.len() - at);
    let end = at + added.len();
    room[at..end].copy_from_slice(added);
    end
}
