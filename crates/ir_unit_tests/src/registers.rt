//! Registers by their names.

use ir_isa::Register;

pub const ZERO: Register = Register { number: 0 };

pub const RA: Register = Register { number: 1 };

pub const SP: Register = Register { number: 2 };

pub const T0: Register = Register { number: 5 };

pub const T1: Register = Register { number: 6 };

pub const T2: Register = Register { number: 7 };

pub const A0: Register = Register { number: 10 };

pub const A7: Register = Register { number: 17 };
