// The marker that ends a paste.
ghost use Rattle.std.specs.Prelude.{◌≡◌, length};
ghost use Rattle.readbuf.specs.Marker.{first_marker, Within};

// How many bytes the marker has.
pub const MARKER_LEN: usize = 6;

// ESC [ 2 0 1 ~
pub const MARKER: [u8; MARKER_LEN] = *b"\x1b[201~";

// The place of the first marker.
pub fn find_marker(text: &[u8]) -> Option<usize>
    ensures value { result ≡ first_marker text.now }
    ensures count { Within (length text.now) result }
{
    text.windows(MARKER_LEN)
        .position(|part| part == MARKER.as_slice())
}
