// The buffers that the list reader is lent: for first codes, second codes, block numbers, service places and access modes. Five, since C lends them so.
#[derive(Drop)]
pub struct ListBuffers<'a> {
    pub first: &'a mut [u16],
    pub second: &'a mut [u16],
    pub numbers: &'a mut [u16],
    // The elements' places in the service list.
    pub places: &'a mut [u8],
    pub modes: &'a mut [u8],
}
