// Tests on what is answered.
use text::lossy;

// Whether the lossy text is this one, with the output behind it as it was.
pub(crate) fn reads_as(text: &[u8], expected: &[u8]) -> bool {
    let mut out = [0xaa; 40];
    match lossy(text, &mut out) {
        Ok(n) => &out[0..n] == expected && (n == 40 || out[n] == 0xaa),
        Err(_) => false,
    }
}
