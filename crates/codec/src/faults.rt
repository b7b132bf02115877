// A fault report: two 32-bit words, and the flags that are their bits.
ghost use Rattle.std.specs.Prelude.{◌≡◌};
ghost use Rattle.codec.specs.Faults.{fault_flags, warning_flags, decode_fault_report};

#[derive(Clone, Copy)]
pub struct FaultFlags {
    pub phase_a_overcurrent: bool,
    pub stall_overload: bool,
    pub position_init_fault: bool,
    pub hardware_id_fault: bool,
    pub encoder_uncalibrated: bool,
    pub phase_c_overcurrent: bool,
    pub phase_b_overcurrent: bool,
    pub overvoltage: bool,
    pub undervoltage: bool,
    pub driver_fault: bool,
    pub overtemperature: bool,
}

#[derive(Clone, Copy)]
pub struct WarningFlags {
    pub overtemperature_warning: bool,
}

#[derive(Clone, Copy)]
pub struct FaultReport {
    pub fault_raw: u32,
    pub warning_raw: u32,
    pub faults: FaultFlags,
    pub warnings: WarningFlags,
}

// The flags of the fault word.
fn fault_flags(fault_raw: u32) -> FaultFlags
    ensures { result ≡ fault_flags fault_raw }
{
    FaultFlags {
        phase_a_overcurrent: (fault_raw & (1 << 16)) != 0,
        stall_overload: (fault_raw & (1 << 14)) != 0,
        position_init_fault: (fault_raw & (1 << 9)) != 0,
        hardware_id_fault: (fault_raw & (1 << 8)) != 0,
        encoder_uncalibrated: (fault_raw & (1 << 7)) != 0,
        phase_c_overcurrent: (fault_raw & (1 << 5)) != 0,
        phase_b_overcurrent: (fault_raw & (1 << 4)) != 0,
        overvoltage: (fault_raw & (1 << 3)) != 0,
        undervoltage: (fault_raw & (1 << 2)) != 0,
        driver_fault: (fault_raw & (1 << 1)) != 0,
        overtemperature: (fault_raw & 1) != 0,
    }
}

// The flag of the warning word.
fn warning_flags(warning_raw: u32) -> WarningFlags
    ensures { result ≡ warning_flags warning_raw }
{
    WarningFlags {
        overtemperature_warning: (warning_raw & 1) != 0,
    }
}

// A fault report's payload, decoded.
pub fn decode_fault_report(payload: [u8; 8]) -> FaultReport
    ensures { result ≡ decode_fault_report payload }
{
    let [f0, f1, f2, f3, w0, w1, w2, w3] = payload;
    let fault_raw = u32::from_le_bytes([f0, f1, f2, f3]);
    let warning_raw = u32::from_le_bytes([w0, w1, w2, w3]);
    FaultReport {
        fault_raw,
        warning_raw,
        faults: fault_flags(fault_raw),
        warnings: warning_flags(warning_raw),
    }
}
