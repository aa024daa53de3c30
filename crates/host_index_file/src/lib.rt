// The file in which an index is kept, for the van's C host: written, read, and asked where the first entry of a key begins.
#![tactic(auto)]

ghost use Rattle.std.specs.Prelude.{◌≡◌};
ghost use Rattle.wire.specs.Overlay.{overlay};
ghost use Rattle.index_file.specs.Files.{answer_told, ReadsRows};
ghost use Rattle.index_file.specs.Head.{head_told};
ghost use Rattle.index_look.specs.Looked.{looked_told};
ghost use Rattle.index_writer.specs.Writes.{WritesFile};
ghost use Rattle.host_index_file.specs.Told.{head_code, head_numbers, HeadTold, looked_code, looked_numbers, LookTold};

use refusals::Refusal;

// 0, or the number of the refusal.
fn told(answer: Result<(), Refusal>) -> u32
    ensures { result ≡ answer_told answer }
{
    match answer {
        Ok(()) => 0,
        Err(refusal) => refusal.number(),
    }
}

// The index file of so many rows of a lent list: 0, or 13.
#[unsafe(no_mangle)]
pub extern "C" fn qm_index_file_write(
    index: &[u64],
    rows: usize,
    covered: u64,
    file: &mut [u8],
) -> u32
    ensures { WritesFile index.now rows covered file.old result file.new }
{
    told(index_writer::write_file(index, rows, covered, file))
}

// What the head of an index file tells, at the start of a lent list.
fn tell_head(read: Result<(u64, usize), Refusal>, head: &mut [u64]) -> u32
    ensures { (result ≡ head_code (head_told read)) × (head.new ≡ overlay head.old 0 (head_numbers (head_told read))) }
{
    match read {
        Ok((covered, rows)) => {
            let numbers = [covered, rows as u64];
            words::put_words(head, 0, &numbers);
            0
        }
        Err(refusal) => refusal.number(),
    }
}

// How many bytes of a log an index file covers, and how many rows it has: 0 and two numbers at the start of a lent list, or the number of the refusal.
#[unsafe(no_mangle)]
pub extern "C" fn qm_index_file_head(file: &[u8], head: &mut [u64]) -> u32
    ensures { HeadTold file.now head.old result head.new }
{
    if head.len() < host_index::PLACE {
        return Refusal::NoRoom.number();
    }
    let read = index_file::read_head(file);
    tell_head(read, head)
}

// The rows of an index file at the start of a lent list, three numbers a row: 0, or the number of the refusal.
#[unsafe(no_mangle)]
pub extern "C" fn qm_index_file_rows(file: &[u8], index: &mut [u64]) -> u32
    ensures { ReadsRows file.now index.old result index.new }
{
    told(index_file::read_rows(file, index))
}

// What a lookup tells, at the start of a lent list.
fn tell_looked(looked: Result<Option<u64>, Refusal>, place: &mut [u64]) -> u32
    ensures { (result ≡ looked_code (looked_told looked)) × (place.new ≡ overlay place.old 0 (looked_numbers (looked_told looked))) }
{
    match looked {
        Ok(found) => {
            let numbers = host_index::place_numbers(found);
            words::put_words(place, 0, &numbers);
            0
        }
        Err(refusal) => refusal.number(),
    }
}

// Where the first entry of a key begins, by the log and its index file: 0 and two numbers at the start of a lent list, or the number of the refusal.
#[unsafe(no_mangle)]
pub extern "C" fn qm_index_file_find(
    log: &[u8],
    file: &[u8],
    sender: u64,
    sequence: u32,
    place: &mut [u64],
) -> u32
    ensures { LookTold log.now file.now sender sequence place.old result place.new }
{
    if place.len() < host_index::PLACE {
        return Refusal::NoRoom.number();
    }
    let looked = index_look::look_up(log, file, sender, words::as_word(sequence));
    tell_looked(looked, place)
}
