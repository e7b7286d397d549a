// How a run divides into its instances.
ghost use Rattle.std.specs.Prelude.{◌≡◌};
ghost use Rattle.run.specs.Run.{run_reading};

use record::walk::records_from;

// How many instances a run has, or the start of the first record that is broken or of another kind.
pub fn read_run(run: &[u8]) -> Result<usize, usize>
    ensures { result ≡ run_reading run.now }
{
    let mut count: usize = 0;
    for record in records_from(run, 0) {
        let record = record?;
        if record.kind != 0x0300 {
            return Err(record.place);
        }
        count += 1;
    }
    Ok(count)
}
