// A frame of the CAN bus.

#[derive(Clone, Copy)]
pub struct CanFrame {
    pub arbitration_id: u32,
    pub data: [u8; 8],
    pub dlc: u8,
    pub is_extended: bool,
    pub is_rx: bool,
}
