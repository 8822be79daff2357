// What `crpd --version` tells. tests/rule_numbers.py holds the second to .rattle-version.

// The number of this command.
pub const NUMBER: &str = "0.1.0";

// The toolchain that proves and builds it.
pub const TOOLCHAIN: &str = "rattle-kit-13f logic dac8208d650f15bf";
