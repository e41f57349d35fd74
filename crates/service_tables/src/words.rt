//! Words of arguments.

/// The handle of the root.
pub const ROOT: [u32; 8] = [0x42415345, 0, 1, 0, 0, 0, 0, 0];

/// A handle that names nothing.
pub const STALE: [u32; 8] = [0x42415345, 0, 2, 0, 0, 0, 0, 0];

/// A sattr that leaves all alone.
pub const KEEP: [u32; 8] = [!0; 8];

/// Names of one letter, and others: ".", "..", "a/b", and no bytes.
pub const A: [u32; 2] = [1, 0x61000000];

pub const B: [u32; 2] = [1, 0x62000000];

pub const L: [u32; 2] = [1, 0x6c000000];

pub const DOT: [u32; 2] = [1, 0x2e000000];

pub const DOTS: [u32; 2] = [2, 0x2e2e0000];

pub const SLASH: [u32; 2] = [3, 0x612f6200];

pub const EMPTY: [u32; 1] = [0];

pub const D: [u32; 2] = [1, 0x64000000];

pub const E: [u32; 2] = [1, 0x65000000];

pub const F: [u32; 2] = [1, 0x66000000];

pub const G: [u32; 2] = [1, 0x67000000];

pub const H: [u32; 2] = [1, 0x68000000];

pub const Q: [u32; 2] = [1, 0x71000000];

pub const X: [u32; 2] = [1, 0x78000000];

/// The bytes "hello" as an opaque.
pub const HELLO: [u32; 3] = [5, 0x68656c6c, 0x6f000000];

/// The status OK.
pub const OK: [u32; 1] = [0];
