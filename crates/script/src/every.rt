// Every list of calls that the machine can be given stands in some memory: as far as memory reaches, no list is beyond the driver.
ghost use Rattle.script.specs.Every.{EveryList};

// No effect: the crate is proved only with the theorem.
pub fn every_list()
    ensures { EveryList }
{}
