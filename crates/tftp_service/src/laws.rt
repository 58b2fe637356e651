//! A law of the servers that share a request port, over the definitions alone.

ghost use Rattle.tftp_service.specs.Looks.{LeavesLittle};

/// Of its time a server leaves requests to the others for an eighth at most, and for 40 ms more, also
/// one that may open no more. So where requests keep coming it is not held up.
pub fn a_server_leaves_requests_for_a_part_of_its_time()
    ensures { LeavesLittle }
{}
