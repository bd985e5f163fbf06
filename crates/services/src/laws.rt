//! What follows from the words of the contracts.
ghost use Rattle.std.specs.Prelude.{◌≡◌, ◌++◌, ◌∷◌, [], None, Some, false};
ghost use Rattle.job_service.specs.instance_rules.Log.{Instance, IsOpen, Issued, Log, Replied, Shut, Shutdown, is_issued};
ghost use Rattle.job_service.specs.kvs_txn.declared.txn.By.{By};
ghost use Rattle.services.specs.Agrees.{AgreesServices};
ghost use Rattle.services.specs.Value.{ServicesValue};

use job_service::laws::shutdowns_leave_jobs;

/// A command that shuts its instance down leaves the services as they are, when it is issued and
/// when it is told so: it asks nothing of them.
pub fn shutdowns_leave_services()
    ensures issued { (v : ServicesValue) (inst : Instance) (log : Log) (by : By)
        → inst.asks by ≡ Some Shutdown → is_issued by log ≡ false → AgreesServices v inst log
        → AgreesServices v inst (log ++ Issued by ∷ []) }
    ensures replied { (v : ServicesValue) (inst : Instance) (log : Log) (by : By)
        → inst.asks by ≡ Some Shutdown → IsOpen by log → AgreesServices v inst log
        → AgreesServices v inst (log ++ Replied by Shut None ∷ []) }
{
    shutdowns_leave_jobs();
}
