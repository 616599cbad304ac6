//! Refusals as statuses.

ghost use Rattle.std.specs.Prelude.{◌≡◌};
ghost use Rattle.viewer_program.specs.Refusals.{check_status, load_status, convert_status, start_status, script_status, run_status, drive_status};

use body_loads::LoadRefusal;
use cache_chain::StartRefusal;
use dag_check::CheckRefusal;
use file_convert::ConvertRefusal;
use live_machine::DriveRefusal;
use text_model::Status;
use view_machine::RunRefusal;
use view_script::ScriptRefusal;

/// The status that tells why a check gave no mesh.
pub fn status_of_check(refusal: CheckRefusal) -> Status
    ensures { result ≡ check_status refusal }
{
    match refusal {
        CheckRefusal::Refused(refusal) => Status::Refused(refusal),
        CheckRefusal::ReadFault => Status::ReadFault,
        CheckRefusal::Memory => Status::Memory,
    }
}

/// The status that tells why bodies could not be loaded.
pub fn status_of_load(refusal: LoadRefusal) -> Status
    ensures { result ≡ load_status refusal }
{
    match refusal {
        LoadRefusal::Changed(patch, fault) => Status::Changed(patch, fault),
        LoadRefusal::ReadFault => Status::ReadFault,
        LoadRefusal::Memory => Status::Memory,
    }
}

/// The status that tells why a file could not be converted.
pub fn status_of_convert(refusal: ConvertRefusal) -> Status
    ensures { result ≡ convert_status refusal }
{
    match refusal {
        ConvertRefusal::Wide(patch) => Status::Wide(patch),
        ConvertRefusal::Memory => Status::Memory,
    }
}

/// The status that tells why the tiers of a run could not be opened.
pub fn status_of_start(refusal: StartRefusal) -> Status
    ensures { result ≡ start_status refusal }
{
    match refusal {
        StartRefusal::Budget { need, given } => Status::Budget { need, given },
        StartRefusal::Changed(patch, fault) => Status::Changed(patch, fault),
        StartRefusal::ReadFault => Status::ReadFault,
        StartRefusal::Memory => Status::Memory,
    }
}

/// The status that tells why there is no script.
pub fn status_of_script(refusal: ScriptRefusal) -> Status
    ensures { result ≡ script_status refusal }
{
    match refusal {
        ScriptRefusal::Script(fault) => Status::Script(fault),
        ScriptRefusal::ReadFault => Status::ReadFault,
        ScriptRefusal::Memory => Status::Memory,
    }
}

/// The status with which a run ends.
pub fn status_of_run(ran: Result<(), RunRefusal>) -> Status
    ensures { result ≡ run_status ran }
{
    match ran {
        Ok(()) => Status::Ok,
        Err(RunRefusal::WriteFault) => Status::WriteFault,
        Err(RunRefusal::Memory) => Status::Memory,
    }
}

/// The status with which driving ends.
pub fn status_of_drive(drove: Result<(), DriveRefusal>) -> Status
    ensures { result ≡ drive_status drove }
{
    match drove {
        Ok(()) => Status::Ok,
        Err(DriveRefusal::ReadFault) => Status::ReadFault,
        Err(DriveRefusal::WriteFault) => Status::WriteFault,
        Err(DriveRefusal::Memory) => Status::Memory,
    }
}
