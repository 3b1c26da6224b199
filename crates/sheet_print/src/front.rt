// The output, and where what is put at its front ends so far. The library's cursor would write by `Write`, of which it is not
// known that a write with room succeeds.
#[derive(Drop)]
pub struct Front<'a> {
    pub out: &'a mut [u8],
    pub end: usize,
}
