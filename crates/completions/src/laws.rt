//! Laws of the definitions that the contract cites: nothing to call, but statements that the check proves.
ghost use Rattle.completions.specs.Scripts.{ScriptsDoNotMeet};

/// The scripts of two programs define nothing under one name.
pub fn scripts_do_not_meet()
    ensures { ScriptsDoNotMeet }
{}
