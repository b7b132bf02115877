// The parameters: their ids and kinds, and the run modes that parameter 7005 holds.
ghost use Rattle.std.specs.Prelude.{◌≡◌};
ghost use Rattle.std.specs.Option.{option_copied};
ghost use Rattle.codec.specs.Kinds.{parameter_info};
ghost use Rattle.codec.specs.Table.{row_among, parameter_row};
ghost use Rattle.codec.specs.Modes.{control_mode_from_raw, control_mode_number};

use crate::error::Refusal;

#[derive(Clone, Copy, PartialEq, Eq)]
pub enum ParameterDataType {
    Int8,
    UInt8,
    UInt16,
    UInt32,
    Float32,
}

// The ids that the Rust names, by its names and in its order.
#[derive(Clone, Copy)]
pub struct ParameterId;

impl ParameterId {
    pub const MECHANICAL_OFFSET: u16 = 0x2005;

    pub const MODE: u16 = 0x7005;

    pub const IQ_TARGET: u16 = 0x7006;

    pub const VELOCITY_TARGET: u16 = 0x700A;

    pub const TORQUE_LIMIT: u16 = 0x700B;

    pub const CURRENT_KP: u16 = 0x7010;

    pub const CURRENT_KI: u16 = 0x7011;

    pub const CURRENT_FILTER_GAIN: u16 = 0x7014;

    pub const POSITION_TARGET: u16 = 0x7016;

    pub const VELOCITY_LIMIT: u16 = 0x7017;

    pub const CURRENT_LIMIT: u16 = 0x7018;

    pub const MECHANICAL_POSITION: u16 = 0x7019;

    pub const IQ_FILTERED: u16 = 0x701A;

    pub const MECHANICAL_VELOCITY: u16 = 0x701B;

    pub const VBUS: u16 = 0x701C;

    pub const POSITION_KP: u16 = 0x701E;

    pub const VELOCITY_KP: u16 = 0x701F;

    pub const VELOCITY_KI: u16 = 0x7020;

    pub const VELOCITY_FILTER_GAIN: u16 = 0x7021;

    pub const VELOCITY_ACCELERATION_TARGET: u16 = 0x7022;

    pub const PP_VELOCITY_MAX: u16 = 0x7024;

    pub const PP_ACCELERATION_TARGET: u16 = 0x7025;

    pub const EPSCAN_TIME: u16 = 0x7026;

    pub const CAN_TIMEOUT: u16 = 0x7028;

    pub const ZERO_STATE: u16 = 0x7029;

    pub const DAMPER: u16 = 0x702A;

    pub const ADD_OFFSET: u16 = 0x702B;

    pub const ALVEOLOUS_OPEN: u16 = 0x702C;

    pub const IQ_TEST: u16 = 0x702D;

    pub const DCC_SET: u16 = 0x702E;

    pub const PROTOCOL_FLAG: u16 = 0x2022;
}

// A listed parameter: its id, its name of 16 bytes with spaces last, and its kind.
// Kept as [u8; 16], not the Rust's &'static str: a constant of structs that hold references has no name in the proofs (tried).
#[derive(Clone, Copy)]
pub(crate) struct ParameterInfo {
    pub(crate) id: u16,
    pub(crate) name: [u8; 16],
    pub(crate) data_type: ParameterDataType,
}

macro_rules! param {
    ($id:expr, $name:expr, $kind:ident) => {
        ParameterInfo {
            id: $id,
            name: *$name,
            data_type: ParameterDataType::$kind,
        }
    };
}

// The listed parameters, in the Rust's order.
pub(crate) static PARAMETER_TABLE: [ParameterInfo; 62] = [
    param!(0x2000, b"echoPara1       ", UInt16),
    param!(0x2001, b"echoPara2       ", UInt16),
    param!(0x2002, b"echoPara3       ", UInt16),
    param!(0x2003, b"echoPara4       ", UInt16),
    param!(0x2004, b"echoFreHz       ", UInt32),
    param!(0x2005, b"mechOffset      ", Float32),
    param!(0x2006, b"MechPos_init    ", Float32),
    param!(0x2007, b"limit_torque    ", Float32),
    param!(0x2008, b"I_FW_MAX        ", Float32),
    param!(0x2009, b"motor_baud      ", UInt8),
    param!(0x200A, b"CAN_ID          ", UInt8),
    param!(0x200B, b"CAN_MASTER      ", UInt8),
    param!(0x200C, b"CAN_TIMEOUT     ", UInt32),
    param!(0x200E, b"status3         ", UInt32),
    param!(0x200F, b"status1         ", Float32),
    param!(0x2010, b"status6         ", UInt8),
    param!(0x2011, b"cur_filt_gain   ", Float32),
    param!(0x2012, b"cur_kp          ", Float32),
    param!(0x2013, b"cur_ki          ", Float32),
    param!(0x2014, b"spd_kp          ", Float32),
    param!(0x2015, b"spd_ki          ", Float32),
    param!(0x2016, b"loc_kp          ", Float32),
    param!(0x2017, b"spd_filt_gain   ", Float32),
    param!(0x2018, b"limit_spd       ", Float32),
    param!(0x2019, b"limit_cur       ", Float32),
    param!(0x201A, b"loc_ref_filt_gai", Float32),
    param!(0x201B, b"limit_loc       ", Float32),
    param!(0x201C, b"position_offset ", Float32),
    param!(0x201D, b"chasu_angle_offs", Float32),
    param!(0x201E, b"spd_step_value  ", Float32),
    param!(0x201F, b"vol_max         ", Float32),
    param!(0x2020, b"acc_set         ", Float32),
    param!(0x2022, b"protocol_1      ", UInt8),
    param!(0x7005, b"run_mode        ", Int8),
    param!(0x7006, b"iq_ref          ", Float32),
    param!(0x700A, b"spd_ref         ", Float32),
    param!(0x700B, b"limit_torque    ", Float32),
    param!(0x7010, b"cur_kp          ", Float32),
    param!(0x7011, b"cur_ki          ", Float32),
    param!(0x7014, b"cur_filter_gain ", Float32),
    param!(0x7016, b"loc_ref         ", Float32),
    param!(0x7017, b"limit_spd       ", Float32),
    param!(0x7018, b"limit_cur       ", Float32),
    param!(0x7019, b"mechPos         ", Float32),
    param!(0x701A, b"iqf             ", Float32),
    param!(0x701B, b"mechVel         ", Float32),
    param!(0x701C, b"VBUS            ", Float32),
    param!(0x701E, b"loc_kp          ", Float32),
    param!(0x701F, b"spd_kp          ", Float32),
    param!(0x7020, b"spd_ki          ", Float32),
    param!(0x7021, b"spd_filter_gain ", Float32),
    param!(0x7022, b"acc_rad         ", Float32),
    param!(0x7024, b"vel_max         ", Float32),
    param!(0x7025, b"acc_set         ", Float32),
    param!(0x7026, b"EPScan_time     ", UInt16),
    param!(0x7028, b"canTimeout      ", UInt32),
    param!(0x7029, b"zero_sta        ", UInt8),
    param!(0x702A, b"damper          ", UInt8),
    param!(0x702B, b"add_offset      ", Float32),
    param!(0x702C, b"alveolous_open  ", UInt8),
    param!(0x702D, b"iq_test         ", UInt8),
    param!(0x702E, b"dcc_set         ", Float32),
];

// The row of this id among some.
fn row_among(id: u16, rows: &[ParameterInfo]) -> Option<&ParameterInfo>
    ensures { option_copied result ≡ row_among id rows.now }
{
    rows.iter().find(|row| row.id == id)
}

// The row of a parameter, if it is listed.
pub(crate) fn parameter_row(id: u16) -> Option<&'static ParameterInfo>
    ensures { option_copied result ≡ parameter_row id }
{
    row_among(id, &PARAMETER_TABLE)
}

// The kind of a parameter, if it is listed.
pub fn parameter_info(id: u16) -> Option<ParameterDataType>
    ensures { result ≡ parameter_info id }
{
    parameter_row(id).map(|row| row.data_type)
}

#[derive(Clone, Copy)]
pub enum ControlMode {
    Mit = 0,
    Position = 1,
    Velocity = 2,
    PositionCsp = 5,
}

impl ControlMode {
    // The mode that a run_mode value names; 17 for any other value.
    #[tactic(auto, unfolding(crate::specs::Modes::control_mode_from_raw))]
    pub fn from_raw(value: i8) -> Result<ControlMode, Refusal>
        ensures { result ≡ control_mode_from_raw value }
    {
        match value {
            0 => Ok(ControlMode::Mit),
            1 => Ok(ControlMode::Position),
            2 => Ok(ControlMode::Velocity),
            5 => Ok(ControlMode::PositionCsp),
            _ => Err(Refusal::UnsupportedRunMode),
        }
    }

    // The run_mode value of a mode.
    pub fn number(self) -> i8
        ensures { result ≡ control_mode_number self }
    {
        self as i8
    }
}
