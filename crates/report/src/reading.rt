// What a program reads before it builds.
ghost use Rattle.io.specs.Counts.{IsPrefixLen};

use std::io::Read;

// Reads until the buffer is full, the input ends or a read fails, and answers how many bytes stand in front of the buffer.
// Stays: the place jumps by what each read gives.
pub fn read_full<R: Read>(reader: &mut R, buffer: &mut [u8]) -> usize
    ensures { IsPrefixLen result buffer.new }
{
    let mut done = 0;
    while done < buffer.len() {
        let Ok(n) = reader.read(&mut buffer[done..]) else {
            break;
        };
        if n == 0 {
            break;
        }
        done += n;
    }
    done
}
