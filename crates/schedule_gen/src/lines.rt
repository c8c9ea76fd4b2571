// The lines of a schedule.
ghost use Rattle.std.specs.Prelude.{◌≡◌, ◌<◌, IfOk, OnOk, ℤ};
ghost use Rattle.std.specs.String.{string_bytes};
ghost use Rattle.schedule_gen.specs.Draws.{generator_after, drawn_token};
ghost use Rattle.schedule_gen.specs.Lines.{write_line, read_line, delete_line, start_line, advance_lines, before_advance, written_target};

use crate::draws::draw;
use base_ids::NoMemory;
use rand_pcg::Lcg64Xsh32;
use stage_graph::Stage;
use std::alloc::Global;

/// How many hosts there are.
pub const HOSTS: u32 = 5;

/// How many tokens are written and read, evenly spread over the ring.
const TOKENS: u32 = 64;

/// The number of one of the 64 tokens.
fn token_of(k: u32) -> i64
    requires { k < 64 }
    ensures { result ≡ drawn_token k }
{
    (i64::from(k) - 32) * (1 << 58) + 1
}

/// The line of a round that writes a drawn byte to a drawn token.
pub fn write_line(alloc: Global, round: u16, generator: &mut Lcg64Xsh32) -> Result<String, NoMemory>
    ensures line { IfOk result (λ line. string_bytes line ≡ write_line round generator.old) }
    ensures draws { generator.new ≡ generator_after 3 generator.old }
{
    let host = draw(generator, HOSTS);
    let token = token_of(draw(generator, TOKENS));
    let byte = draw(generator, 256) as u8;
    let digits = hex::encode(alloc, [byte].as_slice())?;
    Ok(format!(in alloc; "do {host}.0 write 1 {token} live:{round}:{digits}\n")?)
}

/// The line of a round that reads a drawn token.
pub fn read_line(alloc: Global, generator: &mut Lcg64Xsh32) -> Result<String, NoMemory>
    ensures line { IfOk result (λ line. string_bytes line ≡ read_line generator.old) }
    ensures draws { generator.new ≡ generator_after 2 generator.old }
{
    let host = draw(generator, HOSTS);
    let token = token_of(draw(generator, TOKENS));
    Ok(format!(in alloc; "do {host}.0 read 1 {token}\n")?)
}

/// The line of a round that deletes a drawn token's value.
pub fn delete_line(
    alloc: Global,
    round: u16,
    generator: &mut Lcg64Xsh32,
) -> Result<String, NoMemory>
    ensures line { IfOk result (λ line. string_bytes line ≡ delete_line round generator.old) }
    ensures draws { generator.new ≡ generator_after 2 generator.old }
{
    let host = draw(generator, HOSTS);
    let token = token_of(draw(generator, TOKENS));
    Ok(format!(in alloc; "do {host}.0 write 1 {token} dead:{round}:{round}\n")?)
}

/// The line that starts a move.
pub fn start_line(
    alloc: Global,
    tablet: u32,
    leaving: u16,
    pending: u16,
) -> Result<String, NoMemory>
    ensures { IfOk result (λ line. string_bytes line ≡ start_line tablet leaving pending) }
{
    Ok(format!(in alloc; "step 0 start 1 {tablet} {leaving}:0 {pending}:0\n")?)
}

/// The lines by which a move goes on to its next stage, or ends.
pub fn advance_lines(alloc: Global, session: u32, to: Option<Stage>) -> Result<String, NoMemory>
    ensures { IfOk result (λ lines. string_bytes lines ≡ advance_lines session to) }
{
    let before = before_advance(alloc, session, to)?;
    let word = target_word(to);
    Ok(format!(in alloc; "{before}step 0 advance {session} {word}\n")?)
}

/// The line that has to stand before the one that advances to this stage.
fn before_advance(alloc: Global, session: u32, to: Option<Stage>) -> Result<String, NoMemory>
    ensures { IfOk result (λ line. string_bytes line ≡ before_advance session to) }
{
    match to {
        Some(Stage::WriteBothReadNew) => Ok(format!(in alloc; "stream 0 {session}\n")?),
        Some(Stage::EndMigration) => Ok(format!(in alloc; "tidy 0 {session}\n")?),
        _ => Ok(String::new(alloc)),
    }
}

/// The word of a stage, or the one that ends a move.
fn target_word(to: Option<Stage>) -> &'static str
    ensures { result.now ≡ written_target to }
{
    match to {
        Some(stage) => stage.word(),
        None => "none",
    }
}
