// Laws of the machine of plain arrays.
ghost use Rattle.hic_plain.specs.Traps.{StepsTrapAsListed};
ghost use Rattle.hic_plain.specs.Valid.{RunsStayValid, StartsAreValid, StepsKeepRoom, StepsKeepValid};

/// A machine that begins with an object and bytes to read is valid.
pub fn starts_are_valid()
    ensures { StartsAreValid }
{}

/// A step of a task that runs leaves a valid machine valid.
pub fn steps_keep_valid()
    ensures { StepsKeepValid }
{}

/// The lines of the held arrays are no more than the capacity after a step, if they were not before.
pub fn steps_keep_room()
    ensures { StepsKeepRoom }
{}

/// A step traps only with a trap of its instruction, and then the machine is as it was.
pub fn steps_trap_as_listed()
    ensures { StepsTrapAsListed }
{}

/// Each machine that a run comes to is valid and within its capacity, if the first one is.
pub fn runs_stay_valid()
    ensures { RunsStayValid }
{}
