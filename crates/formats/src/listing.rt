// Lists of ciphers behind their count, as a hello and a settings file have them.
ghost use Rattle.std.specs.Prelude.{◌≡◌, ◌<◌, ◌≤◌, not, [], ◌==◌, nat_le};
ghost use Rattle.words.specs.Choice.{holds, most_ciphers};
ghost use Rattle.words.specs.Listed.{listed};
ghost use Rattle.formats.specs.Reading.{with, alone, more_ciphers, listing};

use words::cipher::Cipher;
use words::fault::Fault;
use words::preferences::Preferences;

// Whether there is any.
fn some(count: u8) -> bool
    ensures { result ≡ not (count == 0) }
{
    count != 0
}

// Whether a list lacks a cipher.
fn is_new(list: &Preferences, number: u8) -> bool
    ensures { result ≡ not (holds (listed list.now) number) }
{
    !list.holds(Cipher::new(number))
}

// So many ciphers, none twice, each refused at its byte.
// Parts are taken by `let .. else`, a rule of the project for readers.
fn read_so_many(count: u8, bytes: &[u8], twice: Fault) -> Result<Preferences, Fault>
    requires some { 0 < count }
    requires few { count ≤ most_ciphers }
    ensures { with listed result ≡ alone (more_ciphers twice count [] bytes.now) }
{
    let Some((first, mut rest)) = bytes.split_first() else {
        return Err(Fault::BadLength);
    };
    let mut list = Preferences::only(Cipher::new(*first));
    // The range counts how many are to come, which no slice says: the bytes may end before.
    for i in 1..count {
        let Some((number, after)) = rest.split_first() else {
            return Err(Fault::BadLength);
        };
        if !is_new(&list, *number) {
            return Err(twice);
        }
        // It is new and there is room, so it is added.
        let _ = list.add(Cipher::new(*number));
        rest = after;
    }
    Ok(list)
}

// 1 to 16 ciphers behind their count, none twice; or the first fault, where too many and one twice are told as the caller says.
// Parts are taken by `let .. else`, a rule of the project for readers.
pub fn read_ciphers(bytes: &[u8], many: Fault, twice: Fault) -> Result<Preferences, Fault>
    ensures { with listed result ≡ alone (listing many twice bytes.now) }
{
    let Some((count, rest)) = bytes.split_first() else {
        return Err(Fault::BadLength);
    };
    if !some(*count) {
        return Err(Fault::NoCipher);
    }
    if !Preferences::can_hold(usize::from(*count)) {
        return Err(many);
    }
    read_so_many(*count, rest, twice)
}
