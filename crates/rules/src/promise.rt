ghost use Rattle.rules.specs.Promise.{EachCall, EveryRun};
ghost use Rattle.rules.specs.Durable.{CheckpointStays, NeverOlder, AlwaysReady};

// For every run of calls and power cuts: reads give what was last written, what was kept is found, mounts succeed.
pub fn every_run()
    ensures { EveryRun }
{}

// The same in the form in which each call of a store carries it.
pub fn each_call()
    ensures { EachCall }
{}

// At any point of a run what was kept is found and a mount succeeds, before the first call too.
pub fn always_ready()
    ensures { AlwaysReady }
{}

// What an accepted checkpoint kept of a page is what reads of it give, whatever happens, until it is written again.
pub fn checkpoint_stays()
    ensures { CheckpointStays }
{}

// What is kept of a page never grows older, whatever happens, and reads give nothing older.
pub fn never_older()
    ensures { NeverOlder }
{}
