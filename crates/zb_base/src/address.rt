//! The two addresses of a node: its EUI (the IEEE address), which its maker gave it, and its short address (the
//! network address).

/// An EUI, the IEEE address of a node (EUI-64), as a number.
///
/// On the air and in stores it is least significant byte first; in texts it is 16 hexadecimal digits, most
/// significant first.
#[derive(Clone, Copy, Debug, Default, PartialEq, Eq, PartialOrd, Ord, Hash)]
pub struct Eui(pub u64);

/// A short address, the network address of a node, of 16 bits.
///
/// On the air it is least significant byte first; in texts it is 4 hexadecimal digits, most significant first.
#[derive(Clone, Copy, Debug, Default, PartialEq, Eq, PartialOrd, Ord, Hash)]
pub struct Short(pub u16);
