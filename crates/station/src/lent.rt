// The station lent by `&mut`: a call changes only the place that it names. The reply, and the station at exit, are those of the
// by-value call. No public function asks anything of its caller; each promises its whole result.
pub mod call;
pub mod look;
