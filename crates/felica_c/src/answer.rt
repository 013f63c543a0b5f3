// What the functions answer by value. include/felica.h has the same types for C.

// 0, the command code and how many elements were long; or the number of a refusal, its code, 0 where it has none (1 to 3), and 0.
#[repr(C)]
#[derive(Clone, Copy, Debug, PartialEq, Eq)]
pub struct FelicaAnswer {
    pub refusal: u8,
    pub code: u8,
    pub long_count: u16,
}

// 0 and how many bytes were written; or the number of a refusal and 0. Its code is the one handed in.
#[repr(C)]
#[derive(Clone, Copy, Debug, PartialEq, Eq)]
pub struct FelicaWritten {
    pub refusal: u8,
    pub length: usize,
}
