// Theorems about records and settings as bytes, each on the contract of a function that does nothing.
ghost use Rattle.record_formats.specs.Laws.{RecordsAreReadOneWay, SettingsAreReadOneWay};

// A record that is written is read back, what is read was written so, and nothing cut or longer is taken.
pub fn records_are_read_one_way()
    ensures { RecordsAreReadOneWay }
{}

// Settings that are written are read back, and nothing else is taken.
pub fn settings_are_read_one_way()
    ensures { SettingsAreReadOneWay }
{}
