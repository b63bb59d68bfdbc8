// Whether the archive can be filled now: only while no session is open, since another farm's records could otherwise come to lie in its window.
// Above it: the commands that fill the archive. Below it: the bench's numbers, and how the console speaks.
use pond_look::told;
use pond_rows::Bytes;
use sound::Bench;

// Whether a session is open; then it has been said which is the lowest, and that nothing can be filled.
pub fn held(b: Bench, book: &[Bytes]) -> bool {
    let Some(i) = b.sessions.iter().position(|se| se.used) else {
        return false;
    };
    pond_say::text(b"cannot fill: ");
    told::session(book, i);
    pond_say::text(
        b" is open, and another farm's records could come to lie in what it sees; close every session first, or make a new bench\n",
    );
    true
}
