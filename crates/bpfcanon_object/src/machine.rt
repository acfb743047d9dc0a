//! The names of machines (System V ABI, "e_machine").

/// The name of a machine for which people often compile.
pub fn machine_name(machine: u16) -> Option<&'static str> {
    match machine {
        3 => Some("i386"),
        8 => Some("MIPS"),
        20 => Some("PowerPC"),
        21 => Some("64-bit PowerPC"),
        22 => Some("s390"),
        40 => Some("32-bit ARM"),
        62 => Some("x86-64"),
        183 => Some("64-bit ARM"),
        243 => Some("RISC-V"),
        247 => Some("BPF"),
        258 => Some("LoongArch"),
        _ => None,
    }
}
