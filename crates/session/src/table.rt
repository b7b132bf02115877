// The words of a session, a table for each kind. Of commands and events a table has a row for each: its name, and the shape of
// its line (see arguments), all of them words. The Rust has the commands' names and their order.
// Strings of words, no arrays of rows: answers prints by them, and its ReadBack (command-read-back) is over their text.
ghost use Rattle.std.specs.Prelude.{◌≡◌, ◌<◌, IfSome, length};
ghost use Rattle.session.specs.Table.{row_of};

// The commands of a start, each with the shape of the whole line.
pub const COMMANDS: [u8; 545] =
    *b"ping ITXT ping_with_host_id ITXIT set_mode ITXC ensure_control_mode ITXCT set_zero_position ITX save_parameters ITX get_protocol_flag ITXT set_protocol ITXPT set_device_id ITXB enable ITX disable ITX clear_error ITX set_active_report ITXF send_cmd_mit ITXWWWWW set_velocity_target ITXW get_control_mode ITXT controlled_stop ITXT write_parameter ITXHKW send_cmd_pos_vel_csp ITXWW send_cmd_pos_vel_pp ITXWWW request_parameter ITXH get_parameter ITXHT get_parameter_with_host_id ITXHIT get_parameter_f32 ITXHT get_parameter_i8 ITXHT get_version ITX";

// The events but lines of a log. fresh has no argument; a start's line goes on as its command says.
pub const EVENTS: [u8; 69] =
    *b"fresh  register IIXTT step IT frame TWDFBF look I remove IT start ITX";

// The row of a start.
pub(crate) const START: usize = 6;

// The modes, and the kinds of a value.
pub const MODES: [u8; 19] = *b"mit pp velocity csp";

pub const KINDS: [u8; 17] = *b"i8 u8 u16 u32 f32";

// The row of a name in a table, if one has it. A table has no more rows than bytes.
#[tactic(auto, using(crate::proofs::Reading::rows_passed), unfolding(crate::specs::Table::row_of))]
pub(crate) fn row_of(table: &[u8], w: &[u8]) -> Option<usize>
    ensures row { result ≡ row_of table.now w.now }
    ensures within { IfSome result (λ k. k < length table.now) }
{
    let mut rest = table;
    for row in 0..table.len() {
        if rest.is_empty() {
            return None;
        }
        let (name, shape) = text::first_word(rest);
        if w == name {
            return Some(row);
        }
        rest = text::past_word(shape);
    }
    None
}
